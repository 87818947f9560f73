//! Images of small and of scattered frames, and what is refused.
mod apply;
mod blur;
mod chain;
mod in_place;
mod ops_text;
mod plain;
