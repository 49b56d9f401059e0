//! Runs of the programs: packing, levels, streams of tiles, and those of `lerc_cli` and
//! `overview_cli`.

pub(crate) mod level_rows;
pub(crate) mod pack_rows;
pub(crate) mod programs;
pub(crate) mod run_rows;
pub(crate) mod tile_rows;
