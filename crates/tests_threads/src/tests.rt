//! The tests, each module by what it is of, and what several of them share.

mod agreeing;
mod appends;
mod closings;
mod crowds;
mod cuts;
mod faults;
mod floors;
mod gates;
mod lanes;
mod plans;
mod refusals;
mod reports;
mod rounds;
mod rows;
mod runs;
mod support;
mod verdict_logs;
