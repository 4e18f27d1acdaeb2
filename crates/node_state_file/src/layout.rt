//! How a file of each layout begins.
ghost use Rattle.std.specs.Prelude.{◌≡◌};
ghost use Rattle.node_state_file.specs.Reading.{layout_of, header_length};

use state_writing::FileLayout;

/// The layout that a file's first four bytes name.
pub(crate) fn layout_of(bytes: &[u8]) -> Option<FileLayout>
    ensures { result ≡ layout_of bytes.now }
{
    let word = &bytes[..bytes.len().min(4)];
    if word == FileLayout::Tkt1.magic().as_slice() {
        Some(FileLayout::Tkt1)
    } else if word == FileLayout::Tkt2.magic().as_slice() {
        Some(FileLayout::Tkt2)
    } else {
        None
    }
}

/// How many bytes come before the ports.
pub(crate) fn header_length(layout: FileLayout) -> usize
    ensures { result ≡ header_length layout }
{
    match layout {
        FileLayout::Tkt1 => 14,
        FileLayout::Tkt2 => 16,
    }
}
