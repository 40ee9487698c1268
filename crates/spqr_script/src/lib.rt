// The script that the program reads, and every text that it prints.
//
// A script is lines of commands. Which commands bytes spell is the relation `Commands`, over whole lines: each line is cut
// into tokens, and each line that is not skipped has the tokens of one command: its word, which is found in a table, and its
// arguments. `read` returns the commands exactly where the bytes spell some, and else the number of the first line that is not a
// command. Each text has one definition, its bytes, and one function, which returns just these bytes or runs out of memory. A
// text on a block takes the block as a part of the graph, with values in the part's own numbers, and prints the numbers of the
// graph; what comes after the bar of the line of a rotation system is read back as its entries.
#![tactic(auto)]

mod answers;
mod arguments;
mod command;
mod head;
mod laws;
mod node;
mod nonplanar;
mod numbers;
mod outer;
mod reader;
mod refusals;
mod rotation;
mod tokens;
mod word;

pub use answers::{
    count_line, draw_lines, end_line, error_line, euler_line, faces_lines, gml_lines, list_line,
    list_whole_line, longest_lines, more_line, moves_lines, ok_line, push_block_move_line,
    push_move_count_line, push_regroup_line, push_rotation_line, push_whole_line, rank_line,
    rotation_line, rotation_room,
};
pub use command::{Command, ScriptFault};
pub use decimals::number;
pub use head::{
    block_line, cut_line, graph_line, planar_line, push_block_line, push_cut_line,
    push_planar_line, push_vertex_line, vertex_line,
};
pub use laws::script_laws;
pub use node::{node_line, push_node_line};
pub use nonplanar::{nonplanar_lines, push_nonplanar_lines};
pub use reader::read;
pub use refusals::{
    Which, gml_line, long_line, read_line, rule_line, script_line, start_genus_line, usage_line,
};
