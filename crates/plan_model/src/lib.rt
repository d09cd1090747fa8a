//! `Plan`: what a job asks for, and what it means: filters, windows, aggregates, conditions and rows.
#![tactic(auto)]

pub mod laws;
mod limits;
mod numbers;
mod plan;
mod spec;
mod times;
mod uid;

pub use limits::{
    GREATEST_BOUND, LONGEST_UID, LONGEST_WINDOW, MOST_AGGREGATES, MOST_CONDITIONS, MOST_PARTITIONS,
    MOST_RECORDS, MOST_SOURCES, MOST_WINDOWS, TIME_LIMIT,
};
pub use numbers::Numbers;
pub use plan::Plan;
pub use spec::{Aggregate, FilterSpec, Having, Pane, Row, SourceSpec, WindowSpec};
pub use times::{are_times, is_time};
pub use uid::{Uid, is_uid, put_uid, read_uid};
