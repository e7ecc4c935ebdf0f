// The engine that slices by sixteen: a step takes sixteen bytes through as many tables.
#![tactic(auto)]

pub mod agreeing;
mod blocks;
pub mod slicing;
pub mod slicing_engine;
mod tables;
mod words;
