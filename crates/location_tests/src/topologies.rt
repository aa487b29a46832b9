//! Texts of topologies: the example, faults with their places, and the limits.
mod base;
mod example;
mod limits;
mod order;
mod rules;
mod texts;
