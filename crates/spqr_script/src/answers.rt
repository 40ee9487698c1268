// The texts of the answers to commands, each in a file of its own.
mod change;
mod count;
mod draw;
mod error;
mod euler;
mod face_list;
mod gml;
mod list;
mod longest;
mod move_list;
mod rank;
mod rotation;
mod whole;

pub use change::{end_line, ok_line};
pub use count::count_line;
pub use draw::draw_lines;
pub use error::error_line;
pub use euler::euler_line;
pub use face_list::faces_lines;
pub use gml::gml_lines;
pub use list::{list_line, more_line};
pub use longest::longest_lines;
pub use move_list::{moves_lines, push_move_count_line};
pub use rank::rank_line;
pub use rotation::{push_rotation_line, rotation_line, rotation_room};
pub use whole::{list_whole_line, push_block_move_line, push_regroup_line, push_whole_line};
