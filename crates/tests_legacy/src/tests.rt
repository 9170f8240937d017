mod conditions;
mod given;
mod keys;
mod names;
mod operators;
mod updates;
mod values;
