// What a damaged form comes to.
use records::Head;
use stored_head::{load, save};

#[derive(Clone, Copy, Debug, PartialEq, Eq)]
pub enum Came {
    NoHead,
    // a head that is saved as the same bytes
    Same,
    // a head that is saved as other bytes, since names are equal, and these load as themselves
    Other,
    // a head that is saved as bytes that do not load as themselves
    Astray,
}

// The bytes that a head is saved as. There is room for every head, so that one that is not saved has gone astray.
fn saved_in<'a>(room: &'a mut [u8; 927], head: &Head) -> Result<&'a [u8], Came> {
    let len = save(head, room).map_err(|_| Came::Astray)?;
    Ok(&room[..len])
}

// What a form with this head comes to. Apart from `try_form`, so that no room is made for a form with no head.
fn try_head(head: &Head, form: &[u8]) -> Came {
    let mut room = [0; 927];
    let saved = match saved_in(&mut room, head) {
        Ok(saved) => saved,
        Err(came) => return came,
    };
    let Some(other) = load(saved) else {
        return Came::Astray;
    };
    let mut again = [0; 927];
    if saved_in(&mut again, &other) != Ok(saved) {
        Came::Astray
    } else if saved == form {
        Came::Same
    } else {
        Came::Other
    }
}

pub fn try_form(form: &[u8]) -> Came {
    match load(form) {
        Some(head) => try_head(&head, form),
        None => Came::NoHead,
    }
}
