//! A request whose bytes are there, served.
ghost use Rattle.std.specs.Prelude.{◌≡◌, ℕ, true, false, IfSome, List};
ghost use Rattle.plant_base.specs.{State};
ghost use Rattle.plant_keeper.specs.{IsSameDesk};
ghost use Rattle.desk_server.specs.Exchanges.{Exchange, HasMade, Lacks, MakesOne};
ghost use Rattle.desk_server.specs.Reply.{AnswersBytes};
ghost use Rattle.desk_server.specs.Serving.{HasServed, status_of};

use crate::server::Server;
use plant_http::{ServeFault, Served, serve_one};
use plant_http_requests::{Now, Terms};
use plant_keeper::Keeper;
use std::rt::Clock;

/// How many bytes an answer has room for before its request is served. A command's answer has fewer, so that it takes no memory
/// once the command is executed.
const ANSWER_BYTES: usize = 8192;

/// The answer to a request.
#[derive(Debug, Drop)]
pub(crate) struct Reply {
    pub(crate) status: u16,
    pub(crate) text: Vec<u8>,
}

/// The status by which a request was answered.
fn status_of(served: &Result<Served, ServeFault>) -> Option<u16>
    ensures { result ≡ status_of served.now }
{
    match served {
        Ok(Served::Answered(status)) => Some(*status),
        Ok(Served::Nothing) | Err(_) => None,
    }
}

impl<R: Clock> Server<'_, R> {
    /// Serves the request that these bytes are, where this was known before the first of them: the keeper does its task,
    /// once, and its answer is the text that comes back. Nothing comes back where there are no bytes, or memory was refused for
    /// the request or for the text.
    pub(crate) fn reply_to<K: Keeper>(
        &self,
        now: Now,
        request: &[u8],
        keeper: &mut K,
    ) -> Option<Reply>
        ensures same { IsSameDesk K.honest K.schema K.foreign_tables keeper.old keeper.new }
        ensures serves { K.honest keeper.new → K.shut keeper.old ≡ false → (s : State)
            → K.represents keeper.old s → HasServed self.now.terms 1 s
            (K.represents keeper.new) (K.shut keeper.new) (K.crash_states keeper.new) }
        ensures answers { IfSome result (λ reply. K.honest keeper.new → K.shut keeper.old ≡ false → (s : State)
            → K.represents keeper.old s → AnswersBytes self.now.terms now (K.schema keeper.old) s request.now
            (K.represents keeper.new) (K.shut keeper.new) (K.crash_states keeper.new) reply) }
        ensures makes { (n : ℕ) → K.honest keeper.new → K.shut keeper.old ≡ false → (s : State)
            → (journal : List (Exchange self.now.terms)) → Lacks n journal
            → HasMade self.now.terms (K.schema keeper.old) s journal
            (K.represents keeper.old) (K.shut keeper.old) (K.crash_states keeper.old)
            → MakesOne self.now.terms now n request.now (K.schema keeper.old) s journal
            (K.represents keeper.new) (K.shut keeper.new) (K.crash_states keeper.new) result }
        ensures unchanged { K.shut keeper.old ≡ true → keeper.new ≡ keeper.old }
    {
        let Ok(mut text) = Vec::with_capacity(self.alloc, ANSWER_BYTES) else {
            return None;
        };
        let terms = Terms { now, ..self.terms };
        let mut input = request;
        let served = serve_one(
            self.alloc,
            &self.routes,
            terms,
            &mut input,
            &mut text,
            keeper,
        );
        match status_of(&served) {
            Some(status) => Some(Reply { status, text }),
            None => None,
        }
    }
}
