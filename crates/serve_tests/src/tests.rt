mod asks;
mod clients;
