//! The picture of a genealogy: its lots, batches and edges, each once and in their order, and its text in DOT.
//! The drawing of a picture: the positions of its nodes, and its text in SVG.
#![tactic(auto)]

mod boxes;
mod drawing;
mod graphviz;
mod layers;
mod layouts;
mod model;
mod points;
mod positions;
mod reported;
mod rows;
mod scalable;
mod search;
mod uniting;
mod wishes;

pub use drawing::{BoxPosition, Drawing, DrawnBatch, DrawnEdge, DrawnLot, LayoutFault};
pub use graphviz::{LotStockText, dot, mark_colour, mark_name};
pub use layouts::layout;
pub use model::{Picture, PictureEdge, PictureLot};
pub use reported::{GraphError, Reported, ReportedEdge, UnitedFault};
pub use rows::MOST_WITH_AMOUNTS;
pub use scalable::svg;
pub use uniting::united;
