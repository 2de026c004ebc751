// Reading a request from the words of a line.
ghost use Rattle.std.specs.Result.{MatchResult};
ghost use Rattle.planning.specs.Words.{Leads, NoLead, Done, AfterTail, AfterTo, AfterStart, AfterFrom, RangeOf, RequestOf};

use crate::request::{Field, NoRequest, Request};
use lines::number;
use ranges::{GetRange, PartSize};

// The number that comes first, for `field`, and the words after it.
fn leading_number<'a, 'b>(
    words: &'a [&'b str],
    field: Field,
) -> Result<(u64, &'a [&'b str]), NoRequest>
    ensures { MatchResult result (λ x. Leads words.now x.0 x.1.now) (λ e. NoLead field words.now e) }
{
    let [word, rest @ ..] = words else {
        return Err(NoRequest::Missing(field));
    };
    let n = number(word).ok_or(NoRequest::NotANumber(field))?;
    Ok((n, rest))
}

// `range`, if no word follows it.
fn done(range: GetRange, rest: &[&str]) -> Result<GetRange, NoRequest>
    ensures { Done range rest.now result }
{
    if rest.is_empty() {
        Ok(range)
    } else {
        Err(NoRequest::Surplus)
    }
}

// What follows `tail`.
fn after_tail(words: &[&str]) -> Result<GetRange, NoRequest>
    ensures { AfterTail words.now result }
{
    let (length, rest) = leading_number(words, Field::Length)?;
    done(GetRange::Suffix(length), rest)
}

// What follows `to`.
fn after_to(start: u64, words: &[&str]) -> Result<GetRange, NoRequest>
    ensures { AfterTo start words.now result }
{
    let (end, rest) = leading_number(words, Field::End)?;
    done(GetRange::Bounded(start, end), rest)
}

// What follows a start.
fn after_start(start: u64, words: &[&str]) -> Result<GetRange, NoRequest>
    ensures { AfterStart start words.now result }
{
    match words {
        [] => Ok(GetRange::Offset(start)),
        ["to", rest @ ..] => after_to(start, rest),
        _ => Err(NoRequest::NoTo),
    }
}

// What follows `from`.
fn after_from(words: &[&str]) -> Result<GetRange, NoRequest>
    ensures { AfterFrom words.now result }
{
    let (start, rest) = leading_number(words, Field::Start)?;
    after_start(start, rest)
}

// What follows the two sizes.
fn read_range(words: &[&str]) -> Result<GetRange, NoRequest>
    ensures { RangeOf words.now result }
{
    match words {
        [] => Err(NoRequest::Missing(Field::Kind)),
        ["all", rest @ ..] => done(GetRange::All, rest),
        ["from", rest @ ..] => after_from(rest),
        ["tail", rest @ ..] => after_tail(rest),
        _ => Err(NoRequest::UnknownRange),
    }
}

// The request that the words of a line say, or the first thing that is wrong with them.
pub fn read_request(words: &[&str]) -> Result<Request, NoRequest>
    ensures { RequestOf words.now result }
{
    let (object_size, rest) = leading_number(words, Field::ObjectSize)?;
    let (bytes, rest) = leading_number(rest, Field::PartSize)?;
    let part_size = PartSize::new(bytes)?;
    let range = read_range(rest)?;
    Ok(Request {
        object_size,
        part_size,
        range,
    })
}
