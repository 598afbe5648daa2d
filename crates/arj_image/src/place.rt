// Where the reader stands.
use crate::image::Image;

/// Before the first line; among the objects; behind the counts; in the journal; or among the files.
#[derive(Clone, Copy, Debug, PartialEq, Eq)]
pub enum Stage {
    Start,
    Objects,
    Counted,
    Journal,
    Files,
}

/// What was read, and what may come.
#[derive(Drop)]
pub struct Place {
    pub stage: Stage,
    pub image: Image,
}
