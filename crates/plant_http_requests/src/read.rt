//! From the input to what it asks for.
ghost use Rattle.std.specs.Prelude.{◌≡◌, ℕ, ◌≤◌, ◌+◌, ◌++◌, List, [], Some, None, length, take};
ghost use Rattle.std.specs.Prelude.{drop, IfOk, IsErrOf, OnErr};
ghost use Rattle.plant_http_requests.specs.PieceReading.{Agrees, SpentAll};
ghost use Rattle.plant_http_requests.specs.Tasks.{AsksFor, HeadAsksFor, LacksBody, most_reads};

use crate::bodies::body_task;
use crate::head::step_of_head;
use crate::profile::Terms;
use crate::routes::Routes;
use crate::status::Status;
use crate::steps::{refused_task, unconditional};
use crate::task::{ConditionalTask, HeadStep, RequestTask};
use crate::{HeadEnd, InputFault, read_head, read_to};
use std::alloc::Global;
use std::io::Read;

/// The most reads that a request takes.
pub const MOST_READS: u32 = 4096;

/// What the first `n` bytes ask for, which are a head, with the body after them.
fn head_task<R: Read>(
    alloc: Global,
    routes: &Routes,
    terms: Terms<'_>,
    reader: &mut R,
    bytes: &mut Vec<u8>,
    reads: &mut u32,
    n: usize,
) -> Result<ConditionalTask, InputFault>
    requires within { n ≤ length bytes.old.items }
    requires small { length bytes.old.items ≤ 8192 }
    ensures asks { IfOk result (λ task. (left : List ℕ) × Agrees (R.remaining reader.old) left
        × HeadAsksFor terms.entry (take n bytes.old.items) (drop n (bytes.old.items ++ left)) task) }
    ensures lacks { OnErr result (LacksBody terms.entry (take n bytes.old.items) (length (drop n bytes.old.items))) }
    ensures endless { IsErrOf result InputFault.Endless → SpentAll reads.old
        (R.remaining reader.old) (R.remaining reader.new) }
{
    let step = {
        let (head, _) = bytes.as_slice().split_at(n);
        step_of_head(terms, routes, head)
    };
    match step {
        HeadStep::Decided(decision) => Ok(unconditional(RequestTask::Decided(decision))),
        HeadStep::Body {
            size,
            fields,
            sender,
        } => {
            let want = n + size as usize;
            match read_to(reader, bytes, reads, want) {
                Ok(true) => Ok(ConditionalTask {
                    condition: fields.condition,
                    task: body_task(
                        alloc,
                        terms,
                        sender,
                        fields.content,
                        &bytes.as_slice()[n..want],
                    ),
                }),
                Ok(false) => Ok(refused_task(Status::BadRequest, false)),
                Err(fault) => Err(fault),
            }
        }
    }
}

/// What the input asks for, by these terms, and under which condition. `None` where it ended without a byte.
///
/// The head ends at its first empty line, within 8,192 bytes. A body is read where the head asks for one, and not beyond its length;
/// where the head alone decides, no read follows the one that ended it. The result depends on the bytes of the input and not on the pieces
/// in which they come.
///
/// `Read`: a read failed, or was interrupted. `Endless`: the request has taken its 4,096 reads, each of which gave a byte at least. `Memory`: memory was
/// refused for the bytes. Want of memory in reading a body as a command or an order file is `RequestTask::MemoryError`.
pub fn read_task<R: Read>(
    alloc: Global,
    routes: &Routes,
    terms: Terms<'_>,
    reader: &mut R,
) -> Result<Option<ConditionalTask>, InputFault>
    ensures asks { IfOk result (λ task. (whole : List ℕ) × Agrees (R.remaining reader.old) whole
        × AsksFor terms.entry whole task) }
    ensures endless { IsErrOf result InputFault.Endless → SpentAll most_reads
        (R.remaining reader.old) (R.remaining reader.new) }
{
    let mut bytes = Vec::new(alloc);
    let mut reads = MOST_READS;
    match read_head(reader, &mut bytes, &mut reads) {
        Ok(HeadEnd::Nothing) => Ok(None),
        Ok(HeadEnd::Early) => Ok(Some(refused_task(Status::BadRequest, false))),
        Ok(HeadEnd::TooLong) => Ok(Some(refused_task(Status::HeadTooLarge, false))),
        Ok(HeadEnd::Found(n)) => {
            match head_task(alloc, routes, terms, reader, &mut bytes, &mut reads, n) {
                Ok(task) => Ok(Some(task)),
                Err(fault) => Err(fault),
            }
        }
        Err(fault) => Err(fault),
    }
}
