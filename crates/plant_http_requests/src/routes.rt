//! The routes, and what a path asks for by them.
ghost use Rattle.std.specs.Prelude.{◌≡◌, IfOk, option_and_then, option_copied};
ghost use Rattle.std.specs.Str.{IsAscii};
ghost use Rattle.matchit.specs.Seek.{first};
ghost use Rattle.plant_http_requests.specs.Routes.{found_in, question_with, target_by, target_of};
ghost use Rattle.plant_http_requests.specs.Routes.{target_with, the_routes};

use crate::path::{ascii_text, first_in, second_in};
use crate::route_table::routes;
use matchit::{InsertError, Router};
use plant_json_in::{QuestionKind, Topic, question_of_parts};
use plant_questions::Question;
use std::alloc::Global;
use std::marker::Model;
use thiserror::Error;

/// As what an answer is written.
#[derive(Clone, Copy, Debug, PartialEq, Eq)]
pub enum BodyFormat {
    /// JSON.
    Json,
    /// The batch record, a plain text.
    Record,
}

/// What is brought by POST.
#[derive(Clone, Copy, Debug, PartialEq, Eq)]
pub enum Post {
    /// `/v1/commands`: the desk is to execute a command.
    Command,
    /// `/v1/check`: the desk is to say what would become of a command.
    Check,
    /// `/v1/orders`: the desk is to take an order file.
    Orders,
}

/// A route, without what a path gives it.
#[derive(Clone, Copy, Debug, PartialEq, Eq)]
pub(crate) enum Route {
    /// A question, whose members besides its word the path has.
    Question(QuestionKind),
    /// The batch record of the batch that the path has.
    Record,
    /// What is brought by POST.
    Post(Post),
}

/// What a path asks for.
#[derive(Clone, Copy, Debug, PartialEq, Eq)]
pub enum Target {
    /// The answer to a question, in this format.
    Question(Question, BodyFormat),
    /// What is brought by POST.
    Post(Post),
}

/// Memory was refused for the routes.
#[derive(Clone, Copy, Debug, PartialEq, Eq, Error)]
#[error("out of memory")]
pub struct RoutesFault;

/// All routes of the server, built once.
#[derive(Drop)]
pub struct Routes {
    router: Router<Route>,
}

impl Model for Routes {
    ghost use Rattle.std.specs.Prelude.{◌≡◌};
    ghost use Rattle.matchit.specs.Rows.{RowsOf};
    ghost use Rattle.matchit.specs.Router.{RouteOf};
    ghost use Rattle.plant_http_requests.specs.Routes.{the_routes};
    ghost use Rattle.plant_http_requests.specs.declared.routes.Route.{Route};

    ghost Value = { RowsOf (RouteOf Route) };

    ghost view = { λ s. s.router };

    ghost invariant = { λ s. s.router ≡ the_routes };

    ghost inverse = { λ v. record { router = v } };
}

fn desk_router(alloc: Global) -> Result<Router<Route>, InsertError>
    ensures { IfOk result (λ r. r ≡ the_routes) }
{
    let mut router = Router::new(alloc);
    for (path, route) in routes() {
        router.insert(path, *route)?;
    }
    Ok(router)
}

/// The question of a kind that two parts of a path make, and the format of its answer.
fn question_with(
    kind: QuestionKind,
    body_format: BodyFormat,
    first: Option<&str>,
    second: Option<&str>,
) -> Option<Target>
    ensures { result ≡ question_with kind body_format (option_copied first.entry) (option_copied second.entry) }
{
    let question = question_of_parts(kind, first, second)?;
    Some(Target::Question(question, body_format))
}

/// What a route makes of two parts of a path.
fn target_with(route: Route, first: Option<&str>, second: Option<&str>) -> Option<Target>
    ensures { result ≡ target_with route (option_copied first.entry) (option_copied second.entry) }
{
    match route {
        Route::Question(kind) => question_with(kind, BodyFormat::Json, first, second),
        Route::Record => question_with(
            QuestionKind::About(Topic::Batch),
            BodyFormat::Record,
            first,
            second,
        ),
        Route::Post(post) => Some(Target::Post(post)),
    }
}

fn find_text(router: &Router<Route>, text: &str) -> Option<Target>
    requires { IsAscii text.now }
    ensures { result ≡ option_and_then (target_by text.now) (first router.now text.now) }
{
    let Ok(found) = router.at(text) else {
        return None;
    };
    target_with(
        *found.value,
        first_in(&found.params),
        second_in(&found.params),
    )
}

impl Routes {
    /// Builds the routes.
    ///
    /// `RoutesFault`: memory was refused.
    pub fn new(alloc: Global) -> Result<Self, RoutesFault>
        ensures { IfOk result (λ r. r ≡ the_routes) }
    {
        match desk_router(alloc) {
            Ok(router) => Ok(Routes { router }),
            Err(_) => Err(RoutesFault),
        }
    }

    /// What a path asks for. `None` where no route fits, and where what the path has for a parameter
    /// isn't one.
    #[tactic(auto, unfolding(crate::specs::Routes::found_in))]
    pub fn find(&self, path: &[u8]) -> Option<Target>
        ensures { result ≡ target_of path.now }
    {
        match ascii_text(path) {
            Some(text) => find_text(&self.router, text),
            None => None,
        }
    }
}
