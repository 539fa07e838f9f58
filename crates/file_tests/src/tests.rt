//! Type texts, boxes, movie boxes, classic files, fragments made of them, and pieces of input.

mod boxes;
mod classic_files;
mod fragments_made;
mod input_pieces;
mod made_boxes;
mod movie_boxes;
mod rows;
mod type_texts;
