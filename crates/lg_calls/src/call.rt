//! The request of a call, by the name of its method and its payload.
ghost use Rattle.std.specs.Prelude.{◌≡◌, IfOk, OnOk};
ghost use Rattle.lg_calls.specs.Call.{fields_in, reading_of, request_in, request_of, as_call, fields_left, Answers, MakesCall};
ghost use Rattle.lg_calls.specs.Reading.{Reads};
ghost use Rattle.lg_calls.specs.Request.{IsInRange};

use crate::arguments::Arguments;
use crate::method::{Method, MethodFault};
use crate::methods::add_task::AddTask;
use crate::methods::add_task_batcher::AddTaskBatcher;
use crate::methods::add_worker::AddWorker;
use crate::methods::count_pending::CountPending;
use crate::methods::disable_worker::DisableWorker;
use crate::methods::fetch_error::FetchError;
use crate::methods::forgive_failures::ForgiveFailures;
use crate::methods::get_running_task_resources::GetRunningTaskResources;
use crate::methods::get_task_progress_percentage::GetTaskProgressPercentage;
use crate::methods::get_task_status_message::GetTaskStatusMessage;
use crate::methods::get_work::GetWork;
use crate::methods::mark_as_done::MarkAsDone;
use crate::methods::ping::Ping;
use crate::methods::re_enable_task::ReEnableTask;
use crate::methods::set_task_progress_percentage::SetTaskProgressPercentage;
use crate::methods::set_task_status_message::SetTaskStatusMessage;
use crate::methods::task_list::ListAsk;
use crate::methods::task_search::TaskSearch;
use crate::methods::update_resource::UpdateResource;
use crate::methods::update_resources::UpdateResources;
use crate::methods::worker_list::WorkerList;
use crate::refusal::{PayloadFault, Refusal};
use crate::request::Request;
use lg_base::Text;
use lg_json::Fields;
use serde_json::Value;
use std::alloc::Global;

/// Why a call makes no request.
#[derive(Debug, Drop)]
pub enum CallFault {
    /// No method has this name.
    UnknownMethod,
    /// The method isn't built.
    NotBuilt,
    /// The payload makes no request of the method.
    Refused(Refusal),
    NoMemory,
}

/// The request of the method of this name with this payload, each of its arguments in its range. It is `UnknownMethod` where no method
/// has the name, and else `NotBuilt` where the method isn't built: both whatever the payload is, and without memory. Else it is as
/// `requested`.
pub fn request_of(alloc: Global, method: &Text, payload: &Text) -> Result<Request, CallFault>
    ensures call { MakesCall result (request_of method.now payload.now) }
    ensures in_range { IfOk result IsInRange }
{
    match Method::asked(method.bytes()) {
        Ok(method) => as_call(requested(alloc, method, payload.as_str())),
        Err(MethodFault::UnknownMethod) => Err(CallFault::UnknownMethod),
        Err(MethodFault::NotBuilt) => Err(CallFault::NotBuilt),
    }
}

/// The request of a method, built or not, with this payload, each of its arguments in its range. It is refused as `NotJson` where the
/// payload is no JSON object, whether the method has arguments or none, and else by the first of its arguments that is missing, of
/// another kind or out of range. Fields that aren't arguments are ignored.
pub fn requested(alloc: Global, method: Method, payload: &str) -> Result<Request, PayloadFault>
    ensures request { Answers result (request_in method payload.now) }
    ensures in_range { IfOk result IsInRange }
{
    let mut arguments = arguments_of(alloc, payload)?;
    read_request(method, &mut arguments)
}

/// The arguments of a payload, which is a JSON object.
fn arguments_of(alloc: Global, payload: &str) -> Result<Arguments, PayloadFault>
    ensures { Answers (fields_left result) (fields_in payload.now) }
{
    match Value::from_str(alloc, payload) {
        Ok(value) => match Fields::from_value(value) {
            Ok(fields) => Ok(Arguments::new(alloc, fields)),
            Err(_) => Err(PayloadFault::Refused(Refusal::NotJson)),
        },
        Err(error) if error.is_memory() => Err(PayloadFault::NoMemory),
        Err(_) => Err(PayloadFault::Refused(Refusal::NotJson)),
    }
}

/// The answer to a call whose method is built.
fn as_call(request: Result<Request, PayloadFault>) -> Result<Request, CallFault>
    ensures { result ≡ as_call request }
{
    match request {
        Ok(request) => Ok(request),
        Err(PayloadFault::Refused(refusal)) => Err(CallFault::Refused(refusal)),
        Err(PayloadFault::NoMemory) => Err(CallFault::NoMemory),
    }
}

/// The request of a method, which reads its arguments.
#[tactic(auto, using(crate::proofs::CallLemmas::asks_reads, crate::proofs::ReadingLemmas::done_reads))]
fn read_request(method: Method, arguments: &mut Arguments) -> Result<Request, PayloadFault>
    ensures read { Reads (reading_of method) arguments.old arguments.new result }
    ensures in_range { IfOk result IsInRange }
{
    match method {
        Method::AddTask => AddTask::read(arguments).map(Request::AddTask),
        Method::AddTaskBatcher => AddTaskBatcher::read(arguments).map(Request::AddTaskBatcher),
        Method::AddWorker => AddWorker::read(arguments).map(Request::AddWorker),
        Method::AnnounceSchedulingFailure => Ok(Request::AnnounceSchedulingFailure),
        Method::CountPending => CountPending::read(arguments).map(Request::CountPending),
        Method::DisableWorker => DisableWorker::read(arguments).map(Request::DisableWorker),
        Method::FetchError => FetchError::read(arguments).map(Request::FetchError),
        Method::ForgiveFailures => ForgiveFailures::read(arguments).map(Request::ForgiveFailures),
        Method::GetRunningTaskResources => GetRunningTaskResources::read(arguments).map(
            Request::GetRunningTaskResources,
        ),
        Method::GetTaskProgressPercentage => GetTaskProgressPercentage::read(arguments).map(
            Request::GetTaskProgressPercentage,
        ),
        Method::GetTaskStatusMessage => GetTaskStatusMessage::read(arguments).map(
            Request::GetTaskStatusMessage,
        ),
        Method::GetWork => GetWork::read(arguments).map(Request::GetWork),
        Method::HasTaskHistory => Ok(Request::HasTaskHistory),
        Method::IsPauseEnabled => Ok(Request::IsPauseEnabled),
        Method::IsPaused => Ok(Request::IsPaused),
        Method::MarkAsDone => MarkAsDone::read(arguments).map(Request::MarkAsDone),
        Method::Pause => Ok(Request::Pause),
        Method::Ping => Ping::read(arguments).map(Request::Ping),
        Method::Prune => Ok(Request::Prune),
        Method::ReEnableTask => ReEnableTask::read(arguments).map(Request::ReEnableTask),
        Method::ResourceList => Ok(Request::ResourceList),
        Method::Resources => Ok(Request::Resources),
        Method::SetTaskProgressPercentage => SetTaskProgressPercentage::read(arguments).map(
            Request::SetTaskProgressPercentage,
        ),
        Method::SetTaskStatusMessage => SetTaskStatusMessage::read(arguments).map(
            Request::SetTaskStatusMessage,
        ),
        Method::StatusCounts => Ok(Request::StatusCounts),
        Method::Stop => Ok(Request::Stop),
        Method::TaskList => ListAsk::read(arguments).map(Request::TaskList),
        Method::TaskSearch => TaskSearch::read(arguments).map(Request::TaskSearch),
        Method::Unpause => Ok(Request::Unpause),
        Method::UpdateResource => UpdateResource::read(arguments).map(Request::UpdateResource),
        Method::UpdateResources => UpdateResources::read(arguments).map(Request::UpdateResources),
        Method::WorkerList => WorkerList::read(arguments).map(Request::WorkerList),
    }
}
