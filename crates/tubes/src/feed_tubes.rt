use crate::tube::Tube;
use listed::Listed;

/// The tubes of a plant's feeds over a window, in the order of the feeds.
pub type FeedTubes = Listed<Tube>;
