// What a call may do with the cache.
ghost use Rattle.std.specs.Prelude.{◌≡◌};
ghost use Rattle.policy.specs.Actions.{get_number, head_number, put_number};

// For a get.
#[derive(Clone, Copy, Debug, PartialEq, Eq)]
pub enum GetAction {
    // the call as it came: nothing is looked up, nothing saved
    Bypass = 0,
    // what is held of the path is dropped, fetched again and saved again
    Refetch = 1,
    // served from the cache; what is not held is fetched and saved
    ReadThrough = 2,
}

impl From<GetAction> for u8 {
    ghost from_gives = { λ action n. n ≡ get_number action };

    fn from(action: GetAction) -> u8 {
        action as u8
    }
}

// For a head.
#[derive(Clone, Copy, Debug, PartialEq, Eq)]
pub enum HeadAction {
    // the call as it came: nothing is looked up, nothing saved
    Bypass = 0,
    // a held head is served; one that is fetched is not saved
    Probe = 1,
    // a held head is served; one that is fetched is saved
    ReadThrough = 2,
}

impl From<HeadAction> for u8 {
    ghost from_gives = { λ action n. n ≡ head_number action };

    fn from(action: HeadAction) -> u8 {
        action as u8
    }
}

// For a put or an upload, which is stored below in any case.
#[derive(Clone, Copy, Debug, PartialEq, Eq)]
pub enum PutAction {
    // its bytes are saved too
    Cache = 1,
    // the cache stays as it is
    Skip = 0,
}

impl From<PutAction> for u8 {
    ghost from_gives = { λ action n. n ≡ put_number action };

    fn from(action: PutAction) -> u8 {
        action as u8
    }
}
