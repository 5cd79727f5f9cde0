//! Tests of stores over cells in memory: cells, sagas, records, tables, queues and the ready index.
#![tactic(auto)]

#[cfg(test)]
mod cell_tests;
#[cfg(test)]
mod commit_tests;
#[cfg(test)]
mod queue_opening_tests;
#[cfg(test)]
mod queue_tests;
#[cfg(test)]
mod ready_tests;
#[cfg(test)]
mod record_tests;
#[cfg(test)]
mod saga_tests;
#[cfg(test)]
mod table_tests;
