mod altered;
mod bodies;
mod created;
mod refusals;
mod rules;
mod worked;
