//! Rows of the whole relay, one file a subject, over the runs of `runs`.
mod blocks;
mod captures;
mod drills;
mod failing;
mod numbers;
mod parts;
mod plain;
mod records;
mod runs;
mod sent;
mod settings;
mod stations;
mod studies;
mod zones;
