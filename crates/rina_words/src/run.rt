//! What a run consists of: the tower, and the labels of ports.
use rina_notes::Labels;
use rina_tower::Tower;

/// The tower and the labels, in the order in which they were given.
#[derive(Drop)]
pub struct Run {
    pub tower: Tower,
    pub labels: Labels,
}
