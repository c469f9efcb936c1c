mod calls;
mod cases;
mod records;
mod runs;
mod sources;
mod written;
