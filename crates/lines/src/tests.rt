// Lines of bytes in memory, and a count.
use crate::{Counter, begins_comment, for_each_line, number};
use std::test::Fail;

#[test]
fn lines_in_order(rt: HostRuntime) -> Result<(), Fail> {
    let heap = rt.alloc();
    let mut seen = String::new(heap);
    for_each_line(heap, &b"one\n\n\xff\nlast"[..], |number, line| {
        let text = line.unwrap_or("no text");
        seen.push_str(format!(in heap; "{number} {text}, ")?.as_str())?;
        Ok(())
    })?;
    assert_eq!(rt; seen.as_str(), "1 one, 2 , 3 no text, 4 last, ");
    Ok(())
}

#[test]
fn words(rt: HostRuntime) {
    assert_eq!(rt; begins_comment("#note"), true);
    assert_eq!(rt; begins_comment(""), false);
    assert_eq!(rt; number("18446744073709551615"), Some(u64::MAX));
    assert_eq!(rt; number("18446744073709551616"), None);
}

#[test]
fn counts(rt: HostRuntime) -> Result<(), Fail> {
    let mut counter = Counter::new();
    assert_eq!(rt; counter, Counter::default());
    counter.add_one();
    counter.add_one();
    assert_eq!(rt; counter.get(), 2);
    assert_eq!(rt; format!(in rt.alloc(); "{counter}")?.as_str(), "2");
    Ok(())
}
