// What a person reads of a refusal.
use crate::cause::{Cause, StoreFailure};
use crate::fault::Fault;
use std::error::Error;
use std::fmt;

impl fmt::Display for Cause {
    fn fmt<W: fmt::Write>(&self, f: &mut fmt::Formatter<W>) -> fmt::Result {
        match self {
            Cause::BadPartSize(e) => write!(f, "{e}"),
            Cause::BadPath(e) => write!(f, "{e}"),
            Cause::BadHead(e) => write!(f, "{e}"),
            Cause::ShortBuffer(e) => write!(f, "{e}"),
            Cause::NotFound => write!(f, "No object has this path"),
            Cause::BadRange(e) => write!(f, "{e}"),
            Cause::RoundingOverflow(e) => write!(f, "{e}"),
            Cause::BodyOffPart(start) => write!(
                f,
                "The body from the store begins inside a part, at byte {start}"
            ),
            Cause::NoUploadPlace => write!(f, "No place is free for another upload"),
            Cause::UploadNotOpen(number) => write!(f, "Upload {number} is not open"),
            Cause::StoreFailed(StoreFailure::Full) => write!(f, "The store is full"),
            Cause::StoreFailed(StoreFailure::Unreachable) => write!(f, "The store did not answer"),
            Cause::ShortBody => write!(f, "The store sent fewer bytes than it should"),
            Cause::CacheRefused => write!(f, "The cache did not take a value"),
        }
    }
}

impl fmt::Display for Fault {
    fn fmt<W: fmt::Write>(&self, f: &mut fmt::Formatter<W>) -> fmt::Result {
        write!(
            f,
            "{} (refusal {}, layers passed: {})",
            self.cause,
            self.cause.number(),
            self.layers
        )
    }
}

impl Error for Cause {}

impl Error for Fault {}
