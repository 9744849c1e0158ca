//! The names that series get by rules.
ghost use Rattle.std.specs.Prelude.{◌≡◌, IfOk, MatchResult, Some as There};
ghost use Rattle.tool_requests.specs.Names.{ruled_name, renamed, Requests};
ghost use Rattle.tool_requests.specs.Lines.{Fails, IsBad};

use crate::cache::cached_request_of;
use crate::dialect::Dialect;
use crate::flaws::Unread;
use crate::renaming::Room;
use crate::requests::Request;
use metrics::{Key, KeyName, Refused};
use metrics_rules::Rules;
use std::alloc::Global;

/// The request by the name that the rules have for it, or nothing if they drop it.
fn request_by(
    alloc: Global,
    rules: &Rules,
    room: &mut Room,
    request: Request,
) -> Result<Request, Refused>
    ensures { IfOk result (λ r. r ≡ renamed (ruled_name (There rules.now)) request) }
{
    match request {
        Request::Change(key, by) => match room.key_by(rules, by.kind(), &key)? {
            Some(key) => Ok(Request::Change(key, by)),
            None => Ok(Request::Nothing),
        },
        Request::Describe(kind, name, unit, note) => {
            match room.key_by(rules, kind, &Key::from(name))? {
                Some(key) => {
                    let name = KeyName::new(alloc, key.name())?;
                    Ok(Request::Describe(kind, name, unit, note))
                }
                None => Ok(Request::Nothing),
            }
        }
        request => Ok(request),
    }
}

/// Returns the request of a line, by the name that the rules have for it, or why the line is bad. A dropped name asks for
/// nothing. `room` may be any, and keeps memory for the next call.
#[tactic(auto, using(crate::proofs::NamesLemmas::stays_named))]
pub fn named_request_of<'a>(
    alloc: Global,
    dialect: &Dialect,
    rules: &Option<Rules>,
    room: &mut Room,
    line: &'a [u8],
) -> Result<Request, Unread<'a>>
    ensures { MatchResult result (Requests dialect.now (ruled_name rules.now) line.now)
        (Fails (IsBad dialect.now line.now)) }
{
    let request = cached_request_of(alloc, dialect, &mut room.cache, line)?;
    match rules {
        Some(rules) => Ok(request_by(alloc, rules, room, request)?),
        None => Ok(request),
    }
}
