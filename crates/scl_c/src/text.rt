//! Requests and answers as texts in memory.
ghost use Rattle.std.specs.Prelude.{◌≡◌, ◌≤◌, ◌++◌, length, drop, IfOk, MatchResult, Ok, Err};
ghost use Rattle.scl_c.specs.Texts.{IsTextGiven};

use crate::status::{BAD, NO_MEMORY, TOLD, TOO_SHORT};
use scl_cl::{Mem, Service};
use std::alloc::Global;

/// Puts the text at the front of the room, which is long enough.
fn put(room: &mut [u8], text: &[u8])
    requires { length text.now ≤ length room.old }
    ensures { room.new ≡ text.now ++ drop (length text.now) room.old }
{
    room[..text.len()].copy_from_slice(text);
}

/// What the service answers to the bytes of a request, which are copied.
fn answered<S: Service>(alloc: Global, service: &S, request: &[u8]) -> Mem<Result<Vec<u8>, u64>>
    ensures { IfOk result (λ answered. MatchResult answered (λ text. S.answers service.now request.now (Ok text.items)) (λ number. S.answers service.now request.now (Err number))) }
{
    service.answer(alloc, Vec::from_slice(alloc, request)?)
}

/// Puts what the service answers to a request.
pub(crate) fn respond<S: Service>(
    alloc: Global,
    service: &S,
    request: &[u8],
    room: &mut [u8],
    wanted: &mut usize,
) -> i32
    ensures { IsTextGiven (S.answers service.now request.now) room.old room.new wanted.new result }
{
    match answered(alloc, service, request) {
        Err(_) => {
            *wanted = 0;
            NO_MEMORY
        }
        Ok(Err(number)) => {
            *wanted = number as usize;
            BAD
        }
        Ok(Ok(text)) => {
            *wanted = text.len();
            if room.len() < text.len() {
                TOO_SHORT
            } else {
                put(room, &text);
                TOLD
            }
        }
    }
}
