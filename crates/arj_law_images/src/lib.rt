//! What saved images of runs are, in the words of the audit: their journals, their nodes and their disks.
//!
//! An image is that of a run where it has its header, its journal and its counts, and its files say what the nodes have on disk
//! (`IsImageOf`, `specs/Images.antt`). It stands on `arj_law_promise`, which has the promise of every run, on `arj_law_cause`, by which no
//! entry lists a store twice, and on the crates that judge images, up to `arj_audit`. What it gives upward (`specs/Laws.antt`):
//! `journals_of_runs_keep_order`, `journals_of_runs_list_stores`, `images_of_runs_fit`, `crashes_stop_all_nodes`, `images_of_runs_are_clean`,
//! `images_of_runs_hold_past_states`; and all of these at once, `images_of_stopped_runs_are_calm`. Of what nodes run over disks, whose files
//! are gathered: `resting_runs_make_calm_images` (`specs/Saving.antt`), and by `cores_save_their_files` of the program's own nodes.
#![tactic(auto)]

mod images;
mod saving;

pub use images::{
    crashes_stop_all_nodes, images_of_runs_are_clean, images_of_runs_fit,
    images_of_runs_hold_past_states, images_of_stopped_runs_are_calm, journals_of_runs_keep_order,
    journals_of_runs_list_stores,
};
pub use saving::{cores_save_their_files, resting_runs_make_calm_images};
