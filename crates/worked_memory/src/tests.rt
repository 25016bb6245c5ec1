mod bytes;
mod bytes_of_rounds;
mod bytes_of_workers;
mod same;
