//! What a calm image leaves is what a run can begin with.
//!
//! It stands on `arj_audit`, which says what a calm image is, on `arj_past`, by which fronts of writes are those of tops, on `arj_check`,
//! which knows readable journals, and on `arj_promise`, which says with what a run may begin. Nothing is asked of an image but what the
//! audit finds: not that a run made it. What it gives upward: `headers_go_on`, of the header that goes on (`specs/Laws.antt`);
//! `journals_leave_starts`, of a journal and states that nodes hold (`specs/Leaves.antt`); and by these `calm_images_are_starts`
//! (`specs/Starts.antt`).
#![tactic(auto)]

mod going;
mod starts;

pub use going::headers_go_on;
pub use starts::{calm_images_are_starts, journals_leave_starts};
