mod decimals;
mod fields;
mod json_forms;
mod sets;
mod values;
