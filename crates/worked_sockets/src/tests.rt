mod same;
mod streams;
mod workers;
