mod feed;
mod line;
mod log;
