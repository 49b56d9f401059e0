//! What each command does.

pub(crate) mod build;
pub(crate) mod bundle;
pub(crate) mod decode;
pub(crate) mod encode;
pub(crate) mod get;
pub(crate) mod info;
pub(crate) mod put;
pub(crate) mod sample;
