//! One source buffer, all source buffers of a media source, and the media source.

mod all_buffers;
mod media_source;
mod one_buffer;
