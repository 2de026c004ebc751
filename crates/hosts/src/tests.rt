// What the two hosts give.
use crate::{CountingHost, Host, ScriptedHost};

#[test]
fn counts(rt: HostRuntime) {
    let mut host = CountingHost::new();
    assert!(rt; host.time() == 0);
    assert!(rt; host.time() == 1);
    assert!(rt; host.draw(2) == 0);
    assert!(rt; host.draw(2) == 1);
    assert!(rt; host.draw(0) == 0);
    assert!(rt; host.time() == 5);
}

#[test]
fn reads_its_list(rt: HostRuntime) {
    let numbers = [7, -9, 8];
    let mut host = ScriptedHost::new(&numbers);
    assert!(rt; host.time() == 7);
    assert!(rt; host.time() == -9);
    assert!(rt; host.draw(3) == 2);
    assert!(rt; host.time() == 0);
    assert!(rt; host.draw(3) == 0);
}

#[test]
fn draws_of_negative_numbers(rt: HostRuntime) {
    let numbers = [-1, -3, -4, i64::MIN, -1];
    let mut host = ScriptedHost::new(&numbers);
    assert!(rt; host.draw(3) == 2);
    assert!(rt; host.draw(3) == 0);
    assert!(rt; host.draw(3) == 2);
    assert!(rt; host.draw(usize::MAX) == (1 << 63) - 1);
    assert!(rt; host.draw(0) == 0);
}
