//! Tests of what is read over a window: from a slice, and from readers of a few bytes a call.
mod messages;
mod sources;
