//! The tests, by subject, and what they share.
mod bfs_tree_rows;
mod data_link_rows;
mod euler_ring_rows;
mod frame_codec_rows;
mod least_heap;
mod link_model_rows;
mod lock_desk_rows;
mod node_core_rows;
mod registers_rows;
mod topology_rows;
