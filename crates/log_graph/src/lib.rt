//! Pictures of logs, as Scalable Vector Graphics (SVG 1.1).
#![tactic(auto)]

mod canvas;
mod drawing;
mod marks;
mod scale;

pub use drawing::draw_log;
