//! The calls that the scheduler knows.

use crate::methods::add_task::AddTask;
use crate::methods::add_task_batcher::AddTaskBatcher;
use crate::methods::add_worker::AddWorker;
use crate::methods::count_pending::CountPending;
use crate::methods::disable_worker::DisableWorker;
use crate::methods::fetch_error::FetchError;
use crate::methods::forgive_failures::ForgiveFailures;
use crate::methods::get_running_task_resources::GetRunningTaskResources;
use crate::methods::get_task_progress_percentage::GetTaskProgressPercentage;
use crate::methods::get_task_status_message::GetTaskStatusMessage;
use crate::methods::get_work::GetWork;
use crate::methods::mark_as_done::MarkAsDone;
use crate::methods::ping::Ping;
use crate::methods::re_enable_task::ReEnableTask;
use crate::methods::set_task_progress_percentage::SetTaskProgressPercentage;
use crate::methods::set_task_status_message::SetTaskStatusMessage;
use crate::methods::task_list::ListAsk;
use crate::methods::task_search::TaskSearch;
use crate::methods::update_resource::UpdateResource;
use crate::methods::update_resources::UpdateResources;
use crate::methods::worker_list::WorkerList;

/// A call of the scheduler with its arguments, one variant a method of Luigi 3's RPC.
#[derive(Debug, Drop)]
pub enum Request {
    /// A worker declares a task, or reports what became of one.
    AddTask(AddTask),
    /// A worker says that it runs tasks of a family in batches.
    AddTaskBatcher(AddTaskBatcher),
    /// A worker tells of itself.
    AddWorker(AddWorker),
    /// A worker tells that it couldn't schedule something. Nothing comes of it.
    AnnounceSchedulingFailure,
    /// What is left to do for a worker.
    CountPending(CountPending),
    /// Gives a worker no more work.
    DisableWorker(DisableWorker),
    /// Why a task failed.
    FetchError(FetchError),
    /// Lets a failed task run again at once.
    ForgiveFailures(ForgiveFailures),
    /// What a running task takes of each resource.
    GetRunningTaskResources(GetRunningTaskResources),
    /// How far a task has come.
    GetTaskProgressPercentage(GetTaskProgressPercentage),
    /// What a task says of itself.
    GetTaskStatusMessage(GetTaskStatusMessage),
    /// A worker asks for a task to run.
    GetWork(GetWork),
    /// Whether the scheduler keeps a history of tasks.
    HasTaskHistory,
    /// Whether the scheduler can be paused.
    IsPauseEnabled,
    /// Whether the scheduler is paused.
    IsPaused,
    /// Takes a task for done.
    MarkAsDone(MarkAsDone),
    /// Gives no more work, until it goes on.
    Pause,
    /// A worker says that it is there.
    Ping(Ping),
    /// Forgets what is long gone.
    Prune,
    /// Enables a task that the scheduler disabled.
    ReEnableTask(ReEnableTask),
    /// Each resource with the tasks that run on it.
    ResourceList,
    /// What each resource has, and how much of it is used.
    Resources,
    /// A task tells how far it has come.
    SetTaskProgressPercentage(SetTaskProgressPercentage),
    /// A task says something of itself.
    SetTaskStatusMessage(SetTaskStatusMessage),
    /// How many tasks each status has.
    StatusCounts,
    /// Ends the life. It changes nothing else.
    Stop,
    /// The tasks of a status.
    TaskList(ListAsk),
    /// The tasks whose id contains a text.
    TaskSearch(TaskSearch),
    /// Gives work again.
    Unpause,
    /// Sets the limit of a resource.
    UpdateResource(UpdateResource),
    /// Sets the limits of resources.
    UpdateResources(UpdateResources),
    /// The workers.
    WorkerList(WorkerList),
}

impl Request {
    ghost use Rattle.std.specs.Prelude.{◌≡◌};
    ghost use Rattle.lg_calls.specs.Request.{is_stop};

    /// Whether the life ends with this call.
    pub fn is_stop(&self) -> bool
        ensures { result ≡ is_stop self.now }
    {
        matches!(self, Request::Stop)
    }
}
