mod control;
mod live;
mod shared;
