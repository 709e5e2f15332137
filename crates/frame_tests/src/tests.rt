//! Rows of the formats, one file a layer.
mod elements;
mod frames;
mod samples;
