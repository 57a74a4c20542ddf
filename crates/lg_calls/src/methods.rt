//! The methods that have arguments, one module each.

pub mod add_task;
pub mod add_task_batcher;
pub mod add_worker;
pub mod count_pending;
pub mod disable_worker;
pub mod fetch_error;
pub mod forgive_failures;
pub mod get_running_task_resources;
pub mod get_task_progress_percentage;
pub mod get_task_status_message;
pub mod get_work;
pub mod mark_as_done;
pub mod ping;
pub mod re_enable_task;
pub mod set_task_progress_percentage;
pub mod set_task_status_message;
pub mod task_list;
pub mod task_search;
pub mod update_resource;
pub mod update_resources;
pub mod worker_list;
