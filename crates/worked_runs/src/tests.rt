mod closing;
mod passes;
mod relabelling;
mod rounds;
mod same;
mod solving;
mod triangle;
mod wire_asks;
