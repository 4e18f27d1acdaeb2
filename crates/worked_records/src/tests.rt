//! The tests, by subject, and what they share.
mod again_rows;
mod entry_rows;
mod order_rows;
mod page_rows;
