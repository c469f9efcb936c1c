mod adoptions;
mod boards;
mod carrying;
mod renewals;
mod sessions;
mod trains;
mod windows;
