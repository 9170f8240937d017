//! Rows from outside: the tables of the specification, and heads that clients send.
mod clients;
mod heads;
mod lines;
mod pieces;
mod replies;
mod trial;
