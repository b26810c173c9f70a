//! What a process does with all its requests, and each of its parts.
mod calls;
mod orders;
