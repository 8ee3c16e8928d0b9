//! Models: what the texts of POMDP files are, and what they denote.
#![tactic(auto)]

mod reader;

pub use polcert_cells::{
    Body, Cell, Cells, Entries, Entry, Kind, Place, Places, Row, Sequence, Step, Table, Topic,
};
pub use polcert_format::{ItemFault, ModelFault};
pub use polcert_full_form::write_model;
pub use polcert_tables::{DenseModel, Model, dense_of};
pub use reader::{read_model, read_model_from};
