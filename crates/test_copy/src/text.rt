//! The tests of text_copy and feed_readings.
mod changes;
mod plain;
mod readings;
mod texts;
