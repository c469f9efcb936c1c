//! Windows that workers relax, against windows that settle by themselves. It has tests alone.
#![tactic(auto)]

#[cfg(test)]
mod windows;
